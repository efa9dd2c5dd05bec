// The machine in words: what two connections ask and are answered, what the audit tells of it, handles of each kind,
// commits that fail, rows that leave the outbox, and stores.
mod audits;
mod calls;
mod checks;
mod configs;
mod descriptors;
mod histories;
mod hooks;
mod profiles;
mod scripts;
mod stores;
mod tables;
