// Laws of canonical certificates: a call does nothing, and its contract is the law.

ghost use Rattle.canonical_proof.specs.Laws.{CanonicalCertificatesAreOne, CanonicalCertificatesProve, EqualTermsHaveCanonicalCertificates};

/// The canonical certificate of an equation proves it.
pub fn canonical_certificates_prove()
    ensures { CanonicalCertificatesProve }
{}

/// An equation has one canonical certificate at most.
pub fn canonical_certificates_are_one()
    ensures { CanonicalCertificatesAreOne }
{}

/// An equation between ground terms has a canonical certificate exactly where they are provably equal.
pub fn equal_terms_have_canonical_certificates()
    ensures { EqualTermsHaveCanonicalCertificates }
{}
