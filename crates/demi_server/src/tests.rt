mod outcomes;
mod sessions;
