//! The jobs of `pack` and `unpack`: a listing becomes its image, and an image its listing. A store may begin with what is loaded.
#![tactic(auto)]

pub mod image_texts;
pub mod load_job;
pub mod pack_job;
pub mod unpack_job;

pub use load_job::load_image;
pub use pack_job::pack_listing;
pub use unpack_job::unpack_image;
