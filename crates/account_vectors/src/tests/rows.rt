// Rows, their pairs and their indexes: a module for each, and what their rows of words say.
mod answers;
mod changes;
mod found;
mod indexes;
mod pairs;
mod plain;
mod tables;
