mod causes;
mod devices;
mod files;
mod phases;
mod queries;
mod run;
