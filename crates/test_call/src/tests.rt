mod ciphers;
mod keys;
mod searches;
