//! The routes at one path, by their methods.
ghost use Rattle.std.specs.Prelude.{◌≡◌, Some, None};
ghost use Rattle.http_answers.specs.Routes.Routes.{asked_by, gets, posts, gets_and_puts};

/// The routes at one path: what each method asks there, where it asks something (RFC 9110, section 9).
#[derive(Clone, Copy)]
pub struct Methods<R> {
    pub get: Option<R>,
    pub put: Option<R>,
    pub post: Option<R>,
}

impl<R: Copy> Methods<R> {
    /// A path that is only read.
    pub fn gets(route: R) -> Self
        ensures { result ≡ gets route }
    {
        Methods {
            get: Some(route),
            put: None,
            post: None,
        }
    }

    /// A path at which only something is done.
    pub fn posts(route: R) -> Self
        ensures { result ≡ posts route }
    {
        Methods {
            get: None,
            put: None,
            post: Some(route),
        }
    }

    /// A path that is read and written.
    pub fn gets_and_puts(get: R, put: R) -> Self
        ensures { result ≡ gets_and_puts get put }
    {
        Methods {
            get: Some(get),
            put: Some(put),
            post: None,
        }
    }

    /// What a method asks; HEAD asks what GET does (RFC 9110, section 9.3.2). Methods differ by case.
    pub fn asked_by(&self, method: &str) -> Option<R>
        ensures { result ≡ asked_by self.now method.now }
    {
        match method {
            "GET" => self.get,
            "HEAD" => self.get,
            "PUT" => self.put,
            "POST" => self.post,
            _ => None,
        }
    }
}
