//! Requests that can be opened, with the schemes and the parameters of the opening.
ghost use Rattle.std.specs.Prelude.{◌≡◌};
ghost use Rattle.circle_codewords.specs.Requests.{AreFit, AreRequests, AreRequests-prop};

use circle_commit::{FriParameters, Mmcs, OpeningRequest};
use circle_relation::OverCircle;

/// Requests of committed matrices that can be opened at their points under supported parameters,
/// and that leave something to fold.
#[derive(Drop)]
pub struct OpenableRequests<
    'a,
    Val: Copy,
    EF: OverCircle<Val>,
    InputMmcs: Mmcs<Val>,
    FriMmcs: Mmcs<EF>,
> {
    /// The commitment scheme of the batches.
    pub mmcs: &'a InputMmcs,
    /// The parameters, with the commitment scheme of the codewords.
    pub params: &'a FriParameters<FriMmcs>,
    /// The requests.
    pub requests: &'a [OpeningRequest<'a, InputMmcs::ProverData, EF>],
    pub ghost fit: { AreFit params.now },
    pub ghost binary: { params.now.max_log_arity ≡ 1 },
    pub ghost openable: { AreRequests InputMmcs.matrices EF.fields EF.fields.two_adicity params.now requests.now } by { AreRequests-prop InputMmcs.matrices EF.fields EF.fields.two_adicity params.now requests.now },
}
