// Whole runs over a world in memory.
mod answers;
mod checks;
mod existing_logs;
mod faults;
mod in_memory;
mod listed_logs;
mod whole_runs;
