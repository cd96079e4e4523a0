mod beside;
mod chapters;
mod not_started;
mod seats;
