//! What entries have beside their contents: permission bits, an owner, and files a capability. Each is printed as one field
//! of a line, and read back exactly. Tree texts and indexes write entries with these fields.
#![tactic(auto)]

mod attributes;
mod capability;
mod field;
mod file_attributes;
mod marks;
mod numbers;
mod owner;

pub use attributes::Attributes;
pub use capability::Capability;
pub use field::{
    append_attributes, append_file_attributes, append_owned_number, read_attributes,
    read_file_attributes, read_owned_number,
};
pub use file_attributes::FileAttributes;
pub use marks::append_owner;
pub use owner::Owner;
