mod filter_below;
mod found;
mod members;
mod run;
mod worked;
