// The entry for the automation host, a C program: include/route_book.h declares it, docs/HOST.md tells of it.
#![tactic(auto)]

mod answer;
mod entry;
mod failure;
mod output;

pub use entry::route_book_safest;
