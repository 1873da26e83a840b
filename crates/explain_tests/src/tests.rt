mod explained;
mod run;
