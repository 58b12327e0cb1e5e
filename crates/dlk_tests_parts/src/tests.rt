// What stores, axioms, readers, rules and term files do.
mod axioms;
mod read;
mod rules;
mod stores;
mod terms;
