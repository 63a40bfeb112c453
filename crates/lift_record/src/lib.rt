//! Records of the journal and headers of its batches, sixteen bytes each, in two versions of the
//! format. The second version is written, both are read.
#![tactic(auto)]

mod headers;
mod records;
mod stops;
mod version;

pub use headers::{Header, decode_header, encode_header};
pub use records::{decode, encode, is_lawful};
pub use stops::decode_stop;
pub use version::Version;
