//! The numbers of the account server: access rights of each kind of object, statuses, faults, a user's control bits,
//! those of a descriptor, its parts and the bits that name them, a group's attributes, system access, privileges,
//! well-known RIDs, levels of look-ups, operation numbers, information classes, the types and headers of PDUs, what is
//! answered to a bind, the causes of a refused PDU and the limits of connections and rows.
//!
//! It stands on nothing of ours. In specs/ each number stands once, in the table of its subject, by its name in the
//! standards; every other definition cites it there. Each constant of the code has the standard's spelling and stands
//! in the module of its subject. The layers above use that each constant is the number of the table (by a law in each
//! module, which is the contract of a function that does nothing), that `mapping_of` is the table of generic mappings
//! and that `valid_bits` is its column of all rights.
#![tactic(auto)]

pub mod account_rights;
pub mod alias_rights;
pub mod cause;
pub mod descriptor_control;
pub mod descriptor_part;
pub mod domain_rights;
pub mod fault;
pub mod group_attribute;
pub mod group_rights;
pub mod info_class;
mod kind;
pub mod limit;
pub mod lookup_level;
pub mod lsa_opnum;
pub mod negotiation;
pub mod pdu_header;
pub mod pdu_type;
pub mod policy_rights;
pub mod privilege;
pub mod rid;
pub mod samr_opnum;
pub mod security_information;
pub mod server_rights;
pub mod sid_use;
pub mod standard_rights;
pub mod status;
pub mod system_access;
pub mod user_control;
pub mod user_rights;

pub use kind::{Kind, Mapping, mapping_of, valid_bits};
