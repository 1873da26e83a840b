mod orders;
mod plans;
mod weights;
mod words;
