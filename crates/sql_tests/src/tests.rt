mod accepted;
mod described;
mod refusals;
mod run;
mod statements;
mod trees;
