mod accesses;
mod evictions;
mod last_written;
mod layout_two;
mod replays;
mod want_of_memory;
