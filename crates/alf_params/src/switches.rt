// Whether a filter is on in the CTB at address k: a function for each filter, since each meets a definition of its own.
ghost use Rattle.std.specs.Prelude.{◌≡◌, ◌+◌, ◌*◌, ◌≤◌, length};
ghost use Rattle.alf_spec.specs.declared.Ctb.{Ctb};
ghost use Rattle.alf_spec.specs.Input.{Input};
ghost use Rattle.alf_spec.specs.Geometry.{address};
ghost use Rattle.alf_spec.specs.Process.{luma_on, chroma_on, cross_on};

use crate::entries::ctb_number;
use alf_spec::FilterInput;

// alf_ctb_flag[ 0 ]
#[tactic(auto, using(crate::proofs::TableNumbers::ctb_param_lem), unfolding(alf_spec::specs::Process::luma_on))]
pub fn luma_on(input: &FilterInput, k: usize) -> bool
    requires { 8 * k + 8 ≤ length input.now.ctb_params }
    ensures { (i : Input) (c : Ctb) → i.ctb_params ≡ input.now.ctb_params → address i.layout c ≡ k → result ≡ luma_on i c }
{
    ctb_number(input, k, 0) == 1
}

// alf_ctb_flag[ 1 ] for Cb (component 0), alf_ctb_flag[ 2 ] for Cr (component 1)
#[tactic(auto, using(crate::proofs::TableNumbers::ctb_param_lem), unfolding(alf_spec::specs::Process::chroma_on))]
pub fn chroma_on(input: &FilterInput, component: u8, k: usize) -> bool
    requires { (8 * k + 8 ≤ length input.now.ctb_params) × (component ≤ 1) }
    ensures { (i : Input) (c : Ctb) → i.ctb_params ≡ input.now.ctb_params → address i.layout c ≡ k
        → result ≡ chroma_on i component c }
{
    ctb_number(input, k, 1 + component as usize) == 1
}

// alf_ctb_cc_cb_idc, alf_ctb_cc_cr_idc: an index that is not 0
#[tactic(auto, using(crate::proofs::TableNumbers::ctb_param_lem), unfolding(alf_spec::specs::Process::cross_on))]
pub fn cross_on(input: &FilterInput, component: u8, k: usize) -> bool
    requires { (8 * k + 8 ≤ length input.now.ctb_params) × (component ≤ 1) }
    ensures { (i : Input) (c : Ctb) → i.ctb_params ≡ input.now.ctb_params → address i.layout c ≡ k
        → result ≡ cross_on i component c }
{
    ctb_number(input, k, 6 + component as usize) != 0
}
