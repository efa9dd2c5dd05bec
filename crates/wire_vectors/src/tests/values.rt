// Values as other software and the standards write them, one module for each crate that is called.
mod descriptors;
mod documents;
mod lines;
mod lists;
mod names;
mod numbers;
mod parts;
mod places;
mod sids;
