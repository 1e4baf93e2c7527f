//! The routes of a project and of a desk: which route a method and a path are.
//!
//! The main call is [`Routes::find`]. It gives what a method and a path lead to: a [`Route`] with what its path names, or
//! that no route has the path, or none with this method.
//!
//! ```text
//! let routes = Routes::new(alloc)?;
//! routes.find(alloc, "POST", "/docs/x/checkout")?; // Found::At(Route::Book(BookRoute::Document(Checkout, x)))
//! routes.find(alloc, "GET", "/docs/x/checkout")?; // Found::NoMethod
//! ```
//!
//! The table stands in `specs/Routes.antt`, one line a path. The line of a path is the one that `matchit` finds among
//! them; `specs/Found.antt` says what a method then leads to.
mod by_method;
mod found;
mod methods;
mod resource;
mod route;
mod routes;
mod segments;
mod worked_paths;

pub use crate::routes::found::Found;
pub use crate::routes::methods::Methods;
pub use crate::routes::route::{
    BookRoute, DeskRoute, DocumentRoute, LayerRoute, ProjectRoute, Route, SnapshotRoute,
};
pub use crate::routes::routes::Routes;
pub use crate::routes::worked_paths::{
    examples_of_desk_routes, examples_of_document_routes, examples_of_layer_routes,
    examples_of_lost_paths, examples_of_numbers, examples_of_project_routes,
    examples_of_snapshot_routes,
};
