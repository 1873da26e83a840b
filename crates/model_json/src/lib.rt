//! Models: the JSON document that names the schemas and tables of a database.
#![tactic(auto)]

mod draft;
mod model;
mod schemas;
mod source;
mod tables;

pub use draft::{Draft, Drafts};
pub use model::{Model, ModelDoc, read_model, resolve};
pub use model_fields::{ModelCause, ModelFault};
pub use source::{TableSource, sources};
