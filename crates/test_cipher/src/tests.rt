mod block_cipher;
mod given;
mod key_wrap;
mod modes;
mod pieces;
mod tags_by_cipher;
mod tags_by_hash;
mod tags_in_parts;
