//! Simple types.

use base_types::QName;

/// A base, named by a family constant, or an arrow. Letting a simple type go recurses into its arrows.
#[derive(Debug, Drop)]
pub enum Simple {
    Base(QName),
    Arrow(Box<Simple>, Box<Simple>),
}
