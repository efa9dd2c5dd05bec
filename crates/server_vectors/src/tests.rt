// The worked runs of the program's commands, over worlds in memory. Tables are texts: each row is a run, its events and
// what is written given by the names of lines. What a run leaves is told by one text, so no world outlives the function
// that runs words over it. Below `lock` stand threads that really run, below `doors` requests, sessions and serving,
// with the doors themselves, below `hooks` programs that are run, and below `host` the real world's parts.
mod calls;
mod configs;
mod doors;
mod files;
mod forgetful;
mod generated;
mod hooks;
mod host;
mod left;
mod lines;
mod lock;
mod meeting;
mod meeting_links;
mod replays;
mod runs;
mod serving;
mod streams;
mod worlds;
