mod plans;
mod spaces;
mod ways;
