// Laws of certificates: a call does nothing, and its contract is the law.

ghost use Rattle.equal_proof.specs.Laws.{CertificatesAreSound, CertificatesHaveOneOutcome};

/// What a certificate proves is provably equal.
pub fn certificates_are_sound()
    ensures { CertificatesAreSound }
{}

/// A certificate proves one equation at most, or fails at one step, and not both.
pub fn certificates_have_one_outcome()
    ensures { CertificatesHaveOneOutcome }
{}
