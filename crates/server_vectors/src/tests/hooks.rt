// Programs that are run for account changes: drains over a gate and a spawner in memory, the commands `hooks` and `serve`
// over worlds in memory, a link that waits for a run, and programs of the system.
mod drains;
mod meeting;
mod outboxes;
mod programs;
mod serving;
