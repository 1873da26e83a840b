mod run;
mod selects;
