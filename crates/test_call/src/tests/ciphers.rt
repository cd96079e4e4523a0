mod begun;
mod given;
mod long_texts;
mod pieces;
mod single_calls;
