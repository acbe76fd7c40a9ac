//! Tests of selectors, of options, of tables and of HTML.
#![tactic(auto)]

#[cfg(test)]
mod html;
#[cfg(test)]
mod options;
#[cfg(test)]
mod select;
#[cfg(test)]
mod table;
