// Texts, and what is read of them: the items, or the fault with its line and place.
mod clauses;
mod columns;
mod damage;
mod files;
mod settings;
mod show;
mod words;
mod written;
