mod codes;
mod given;
mod signing;
mod verifying;
mod wrapping;
