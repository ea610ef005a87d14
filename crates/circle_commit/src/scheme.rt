//! The trait of schemes.
ghost use Rattle.std.specs.Prelude.{◌≡◌, ℕ, List, Bool, IfOk, IfErr, OnOk, IsTrue};
ghost use Rattle.circle_commit.specs.Pcs.{Openings, openings};
ghost use Rattle.circle_commit.specs.declared.matrix.RowMajorMatrix.{RowMajorMatrix};
ghost use Rattle.circle_commit.specs.declared.pcs.CommitmentOpening.{CommitmentOpening};
ghost use Rattle.circle_commit.specs.declared.pcs.OpeningRequest.{OpeningRequest};
ghost use Rattle.circle_commit.specs.Honest.{AcceptsAnswers, AreHonest, AreTrueValues, HaveValues};
ghost use Rattle.circle_commit.specs.Kept.{AreKept};

use crate::{CommitmentOpening, OpenedValues, OpeningRequest, PolynomialSpace, RowMajorMatrix};
use circle_challenger::ChallengerState;
use circle_field::ExtensionField;
use std::alloc::Global;
use std::fmt::Debug;

/// A scheme that commits to polynomials, given by their values on domains, and opens them at points
/// of a challenge field.
///
/// `Challenger` draws the challenges of a run. What is promised speaks of its states and not of
/// itself, so a caller can play a prover and a verifier from one state.
pub trait Pcs<Challenge, Challenger: ChallengerState>
where
    Challenge: ExtensionField<<Self::Domain as PolynomialSpace>::Val>,
{
    /// The domains that polynomials are given on.
    type Domain: PolynomialSpace;

    /// What is published of a batch of matrices.
    type Commitment: Debug + Drop;

    /// What the committer keeps of it.
    type ProverData: Drop;

    /// What shows that values are those of the committed polynomials.
    type Proof: Drop;

    /// Why claimed values are refused.
    type Error: Debug + Drop;

    /// Why there is no commitment or no opening.
    type ProverError: Debug + Drop;

    ghost natural_domain_for_degree_asks: { Self → ℕ → Type 0 };

    ghost natural_domain_for_degree_gives: { Self → ℕ → Self.Domain → Type 0 };

    ghost commit_asks: { Self → List (Self.Domain × RowMajorMatrix Self.Domain.Val) → Type 0 };

    // The batch has this commitment, and these are data of it.
    ghost commits: { Self → List (Self.Domain × RowMajorMatrix Self.Domain.Val) → Self.Commitment
        → Self.ProverData → Type 0 };

    ghost commit_refuses: { Self → List (Self.Domain × RowMajorMatrix Self.Domain.Val)
        → Self.ProverError → Type 0 };

    // The batch can be committed to, and opened at these points, for each matrix its own.
    ghost opens_at: { Self → List (Self.Domain × RowMajorMatrix Self.Domain.Val)
        → List (List Challenge) → Type 0 };

    // The values at these points, for each matrix its own, of the polynomials of the batch.
    ghost values_of: { Self → List (Self.Domain × RowMajorMatrix Self.Domain.Val)
        → List (List Challenge) → List (List (List Challenge)) → Type 0 };

    // In the run of the requests from this state of a challenger each search for a witness of a
    // proof of work finds one.
    ghost finds_witnesses: { Self → List (OpeningRequest Self.ProverData Challenge)
        → Challenger.State → Type 0 };

    ghost open_asks: { Self → List (OpeningRequest Self.ProverData Challenge) → Type 0 };

    // From the first state of a challenger the requests have these values and this proof, which
    // leaves the second.
    ghost open_gives: { Self → List (OpeningRequest Self.ProverData Challenge) → Challenger.State
        → Openings Challenge → Self.Proof → Challenger.State → Type 0 };

    // From the first state of a challenger the requests are refused for this reason, which leaves
    // the second.
    ghost open_refuses: { Self → List (OpeningRequest Self.ProverData Challenge)
        → Challenger.State → Challenger.State → Self.ProverError → Type 0 };

    // From the first state of a challenger the claims and the proof are accepted, which leaves the
    // second.
    ghost verify_accepts: { Self → List (CommitmentOpening Challenge Self.Commitment Self.Domain)
        → Self.Proof → Challenger.State → Challenger.State → Type 0 };

    // From the first state of a challenger the claims and the proof are refused for this reason,
    // which leaves the second.
    ghost verify_refuses: { Self → List (CommitmentOpening Challenge Self.Commitment Self.Domain)
        → Self.Proof → Challenger.State → Challenger.State → Self.Error → Type 0 };

    // The error says that memory was refused.
    ghost is_memory: { Self.Error → Bool };

    ghost is_prover_memory: { Self.ProverError → Bool };

    /// The domain on which a polynomial of `degree` coefficients is given.
    fn natural_domain_for_degree(&self, degree: usize) -> Self::Domain
        requires { natural_domain_for_degree_asks self.now degree }
        ensures { natural_domain_for_degree_gives self.now degree result };

    /// Commits to a batch of matrices, each with the domain that its columns are values on, a row
    /// for each point. Fails where memory is refused.
    fn commit(
        &self,
        alloc: Global,
        evaluations: Vec<
            (
                Self::Domain,
                RowMajorMatrix<<Self::Domain as PolynomialSpace>::Val>,
            ),
        >,
    ) -> Result<(Self::Commitment, Self::ProverData), Self::ProverError>
        requires { commit_asks self.now evaluations.items }
        ensures committed { IfOk result (λ r. commits self.now evaluations.items r.0 r.1) }
        ensures refused { IfErr result (commit_refuses self.now evaluations.items) };

    /// The values of the committed polynomials at the requested points, and a proof that they are.
    ///
    /// Requires of its data what `open_asks` says, which holds of those that were kept of batches
    /// that were committed to. Fails where memory is refused.
    fn open(
        &self,
        alloc: Global,
        requests: Vec<OpeningRequest<'_, Self::ProverData, Challenge>>,
        challenger: &mut Challenger,
    ) -> Result<(OpenedValues<Challenge>, Self::Proof), Self::ProverError>
        requires { open_asks self.now requests.items }
        ensures opened { let s = Challenger.state in IfOk result (λ r. open_gives self.now
            requests.entry.items (s challenger.old) (openings r.0.items) r.1 (s challenger.new)) }
        ensures refused { let s = Challenger.state in IfErr result (open_refuses self.now
            requests.entry.items (s challenger.old) (s challenger.new)) };

    /// Whether the claimed values are those of the committed polynomials: Ok exactly where the
    /// scheme's relation holds, unless out of memory.
    ///
    /// Takes any input: what is malformed is refused.
    fn verify(
        &self,
        alloc: Global,
        claims: Vec<CommitmentOpening<Challenge, Self::Commitment, Self::Domain>>,
        proof: &Self::Proof,
        challenger: &mut Challenger,
    ) -> Result<(), Self::Error>
        ensures accepted { OnOk result (verify_accepts self.now claims.items proof.now
            (Challenger.state challenger.old) (Challenger.state challenger.new)) }
        ensures refused { IfErr result (λ e. (left : Challenger.State) → verify_accepts self.now
            claims.items proof.now (Challenger.state challenger.old) left → IsTrue (is_memory e)) }
        ensures reason { IfErr result (verify_refuses self.now claims.items proof.now
            (Challenger.state challenger.old) (Challenger.state challenger.new)) };

    /// Whether the error says that memory was refused.
    fn is_memory(error: &Self::Error) -> bool
        ensures { result ≡ is_memory error.now };

    /// Whether the error of a committer says that memory was refused.
    fn is_prover_memory(error: &Self::ProverError) -> bool
        ensures { result ≡ is_prover_memory error.now };

    // A batch that may be opened is refused by `commit` for memory alone.
    ghost honest_commit: { (pcs : Self)
        (batch : List (Self.Domain × RowMajorMatrix Self.Domain.Val))
        (points : List (List Challenge)) (e : Self.ProverError) → opens_at pcs batch points
        → commit_refuses pcs batch e → IsTrue (is_prover_memory e) };

    // Honest requests are refused by `open` for memory alone, where witnesses are found.
    ghost honest_open: { (pcs : Self) (requests : List (OpeningRequest Self.ProverData Challenge))
        (s t : Challenger.State) (e : Self.ProverError)
        → AreHonest (commits pcs) (opens_at pcs) requests → finds_witnesses pcs requests s
        → open_refuses pcs requests s t e → IsTrue (is_prover_memory e) };

    // `open` returns a list of values for each requested point.
    ghost each_point: { (pcs : Self) (requests : List (OpeningRequest Self.ProverData Challenge))
        (values : Openings Challenge) (proof : Self.Proof) (s t : Challenger.State)
        → open_gives pcs requests s values proof t → HaveValues requests values };

    // What `open` returns for batches that were committed to are the values of their polynomials.
    ghost true_values: { (pcs : Self) (requests : List (OpeningRequest Self.ProverData Challenge))
        (values : Openings Challenge) (proof : Self.Proof) (s t : Challenger.State)
        → open_gives pcs requests s values proof t
        → AreTrueValues (commits pcs) (values_of pcs) requests values };

    // What `open` gives is accepted from the state that it was called in, and leaves the same
    // state: where the claims are what was returned, of batches that have the claimed commitments,
    // on domains of as many points.
    ghost complete: { (pcs : Self) (requests : List (OpeningRequest Self.ProverData Challenge))
        (values : Openings Challenge) (proof : Self.Proof) (s t : Challenger.State)
        → open_gives pcs requests s values proof t → AcceptsAnswers Self.Domain.size (commits pcs)
        (λ claims. verify_accepts pcs claims proof s t) requests values };

    // Data that were kept of batches that were committed to can be opened.
    ghost kept_asks: { (pcs : Self) (requests : List (OpeningRequest Self.ProverData Challenge))
        → AreKept (commits pcs) requests → open_asks pcs requests };

    // The claims, the proof and the state before fix the state after.
    ghost one_state: { (pcs : Self)
        (claims : List (CommitmentOpening Challenge Self.Commitment Self.Domain))
        (proof : Self.Proof) (s t u : Challenger.State) → verify_accepts pcs claims proof s t
        → verify_accepts pcs claims proof s u → t ≡ u };
}
