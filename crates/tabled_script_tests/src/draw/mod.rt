//! Tests of pictures, by public calls alone.

mod calls;
mod columns;
mod markdown;
mod misfits;
mod odd;
mod originals;
mod rearranged;
mod scripts;
mod styles;
mod writers;
