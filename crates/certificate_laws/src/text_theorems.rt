//! Texts that write certificates.

ghost use Rattle.certificate_laws.specs.TextLaws.{WrittenIsCertified, WrittenIsOne, SignatureIsOne, BadIsNone, BadIsOne};
ghost use Rattle.certificate_laws.specs.TextExamples.{NineLines, FirstLineAlone, EmptyText, TextWithoutLineFeed};

/// A text writes at most one certificate, of at most one signature.
pub fn law_text()
    ensures certified { WrittenIsCertified }
    ensures one { WrittenIsOne }
    ensures signature { SignatureIsOne }
{}

/// A text with a line that is none of a certificate is no certificate, and at most one line is the first such.
pub fn law_bad_line()
    ensures none { BadIsNone }
    ensures one { BadIsOne }
{}

/// Worked texts.
pub fn text_examples()
    ensures nine { NineLines }
    ensures first { FirstLineAlone }
    ensures empty { EmptyText }
    ensures feed { TextWithoutLineFeed }
{}
