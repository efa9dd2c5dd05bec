// Rows, the operations on them, and the machine; and streams and keepers, in memory and in files.
mod files;
mod first_rows;
mod keepers;
mod lines;
mod machine;
mod operations;
mod puts;
mod rows;
mod streams;
mod words;
mod works;
