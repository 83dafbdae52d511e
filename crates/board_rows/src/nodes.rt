//! The nodes of a row and their names.
use bd_links::Node;
use byte_strings::ByteString;
use row_files::{RowFault, Words, number};
use std::alloc::{AllocError, Global};

/// The nodes' labels in number order. A node's name is its label, or `#` and its number where it has none, and its target is
/// that name so many times.
#[derive(Drop)]
pub struct Nodes<'a> {
    pub labels: Vec<&'a str>,
    pub times: usize,
}

impl Nodes<'_> {
    /// The node of a word: a label, or `#` and a number.
    pub fn find(&self, word: &str) -> Result<Node, RowFault> {
        if let Some(digits) = word.strip_prefix("#") {
            return Ok(Node::new(number(digits)?));
        }
        match self.labels.iter().position(|label| *label == word) {
            Some(place) => Ok(Node::new(place)),
            None => Err(RowFault::Word),
        }
    }

    pub fn next(&self, words: &mut Words<'_>) -> Result<Node, RowFault> {
        self.find(words.next())
    }

    /// The node behind a word such as `as `, or else this one.
    pub fn other(&self, words: &mut Words<'_>, word: &str, node: Node) -> Result<Node, RowFault> {
        if words.skip(word) {
            return self.next(words);
        }
        Ok(node)
    }

    pub fn target(&self, alloc: Global, node: Node) -> Result<ByteString, AllocError> {
        let mut name = String::new(alloc);
        self.write(node, &mut name)?;
        let mut bytes = Vec::new(alloc);
        for _time in 0..self.times {
            bytes.extend_from_slice(name.as_bytes())?;
        }
        Ok(ByteString::new(bytes))
    }

    pub fn write(&self, node: Node, out: &mut String) -> Result<(), AllocError> {
        match self.labels.get(node.number()) {
            Some(label) => out.push_str(label),
            None => write!(out, "#{}", node.number()),
        }
    }
}
