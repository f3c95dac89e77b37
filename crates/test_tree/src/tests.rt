// Boot, fetch and update over real buses: the order and the number of accesses, false answers and want of memory. Accesses were
// counted by an independent model in Python.
mod climbs;
mod collisions;
mod counted;
mod evictions;
mod flips;
mod never_made;
mod replays;
mod sequences;
