// The real world's parts, over streams in memory and over sockets of the test itself, the words of the command line,
// and what the program says: the usage text, and the line after each status.
mod entrances;
mod first_run;
mod keepers;
mod links;
mod messages;
mod streams;
mod usages;
mod words;
