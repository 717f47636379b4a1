mod events;
mod faults;
mod headers;
mod reports;
mod traces;
