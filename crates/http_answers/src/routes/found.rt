//! What a method and a path lead to.
use crate::routes::route::Route;

/// What a method and a path lead to.
#[derive(Debug, Drop)]
pub enum Found {
    /// A route.
    At(Route),
    /// No route has the path, or what the path names cannot be named so.
    NoRoute,
    /// There are routes at the path, and none has this method.
    NoMethod,
}
