//! Tests of selectors: what each names in tables of zeros or of texts.

mod combinations;
mod locators;
mod named;
mod plain;
mod steps;
