mod aggregates;
mod filters;
mod joins;
mod projects;
mod run;
mod words;
