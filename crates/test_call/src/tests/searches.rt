mod answered;
mod given;
mod matches;
mod others;
