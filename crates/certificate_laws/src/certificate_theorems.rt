//! Certificates and well-typed signatures.

ghost use Rattle.certificate_laws.specs.CertificateLaws.{CertifiedIsTyped, StepsAreTrue, CertifiedIsUnique, CertifiedIsDistinct, CertifiedIsNormal, TypedIsCertified};

/// A signature with a certificate is well typed, and each step of the certificate is true over the declarations above it.
pub fn law_certificate()
    ensures typed { CertifiedIsTyped }
    ensures steps { StepsAreTrue }
{}

/// A certificate has one signature, with distinct names and normal values.
pub fn law_signature()
    ensures unique { CertifiedIsUnique }
    ensures distinct { CertifiedIsDistinct }
    ensures normal { CertifiedIsNormal }
{}

/// A well-typed signature with distinct names and normal values has a certificate.
pub fn law_existence()
    ensures exists { TypedIsCertified }
{}
