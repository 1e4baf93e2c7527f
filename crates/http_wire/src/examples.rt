//! The definitions of this crate on a few examples.
ghost use Rattle.std.specs.Prelude.{◌≡◌, ◌∷◌, [], true, false, codes};
ghost use Rattle.http_wire.specs.Answers.{answer_bytes_of, answer_bytes_to, refusal, unable};
ghost use Rattle.http_wire.specs.Fields.{asks_to_close, body_size, first_value};
ghost use Rattle.http_wire.specs.Messages.{path_of};

use crate::{Answer, Media, Stop};

/// What fields say of the body and of the end of the connection.
pub fn examples_of_fields()
    ensures none { body_size (codes "GET") [] ≡ Ok 0 }
    ensures length { body_size (codes "PUT") ((codes "content-LENGTH", codes "44") ∷ []) ≡ Ok 44 }
    ensures same { body_size (codes "POST") ((codes "Content-Length", codes "3") ∷ (codes "Content-Length", codes "03") ∷ []) ≡ Ok 3 }
    ensures differ { body_size (codes "POST") ((codes "Content-Length", codes "3") ∷ (codes "Content-Length", codes "4") ∷ []) ≡ Err Stop.BadHead }
    ensures digits { body_size (codes "POST") ((codes "Content-Length", codes "12x") ∷ []) ≡ Err Stop.BadHead }
    ensures large { body_size (codes "POST") ((codes "Content-Length", codes "4194305") ∷ []) ≡ Err Stop.TooLarge }
    ensures encoded { body_size (codes "PUT") ((codes "Transfer-Encoding", codes "chunked") ∷ []) ≡ Err Stop.Encoded }
    ensures lacking { body_size (codes "PUT") ((codes "Caller", codes "cur") ∷ []) ≡ Err Stop.NeedsLength }
    ensures first { first_value (codes "caller") ((codes "Caller", codes "ann") ∷ (codes "caller", codes "bob") ∷ []) ≡ Some (codes "ann") }
    ensures path { path_of (codes "/docs/x?y?z") ≡ codes "/docs/x" }
    ensures close { asks_to_close ((codes "Connection", codes "keep-alive, Close") ∷ []) ≡ true }
    ensures closed { asks_to_close ((codes "Connection", codes "closed") ∷ []) ≡ false }
{}

/// The bytes of answers.
pub fn examples_of_answers()
    ensures made { answer_bytes_of (record { status = 200; media = Media.Json; body = codes "{\"made\":\"T1\"}" }) 3 false
        ≡ codes "HTTP/1.1 200 OK\r\nContent-Type: application/json\r\nContent-Length: 13\r\nPlace: 3\r\n\r\n{\"made\":\"T1\"}" }
    ensures bodiless { answer_bytes_to true (record { status = 200; media = Media.Json; body = codes "{\"made\":\"T1\"}" }) 3 false
        ≡ codes "HTTP/1.1 200 OK\r\nContent-Type: application/json\r\nContent-Length: 13\r\nPlace: 3\r\n\r\n" }
    ensures refused { answer_bytes_of (refusal 400 (codes "BadHead")) 3 true
        ≡ codes "HTTP/1.1 400 Bad Request\r\nContent-Type: application/json\r\nContent-Length: 21\r\nPlace: 3\r\nConnection: close\r\n\r\n{\"refused\":\"BadHead\"}" }
    ensures unable { unable 3
        ≡ codes "HTTP/1.1 503 Service Unavailable\r\nContent-Type: application/json\r\nContent-Length: 20\r\nPlace: 3\r\nConnection: close\r\n\r\n{\"refused\":\"Memory\"}" }
{}
