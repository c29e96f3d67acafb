// The sources of demos.
use demo_source::{demo_params, demo_source};

/// The source of six cards after the seed 0.
static SIX_CARDS: &[u8] =
    b" INCRA X,345\n INCRA X,606\n INCRA X,775\n DECRA X,924\n SETAC Y,573\n SUM X,X,Y\n OUTPUT U,F,(X)\n ENDEX Z\nX DESCR\nY DESCR\nZ DESCR\nU DESCR UNITO\nF FORMAT '(I20)'\n END\n";

/// The parameters of every demo.
static PARAMS: &[u8] =
    b"DESCR 16\nAOFF 0\nFOFF 8\nFLEN 2\nVOFF 12\nVLEN 4\nFNC 1\nMARK 2\nPTR 4\nSTTL 8\nTTL 16\nSTSIZE 64\nDYNSIZ 100\nOBSIZ 256\nUNITI 5\nUNITO 6\nUNITP 7\nDATE 01/01/70\n";

#[test]
fn a_demo_has_a_card_of_each_number_and_standard_parameters(rt: HostRuntime) {
    let source = demo_source(rt.alloc(), 6, 0).expect(&rt, "the source of a demo");
    assert_eq!(rt; source.as_slice(), SIX_CARDS);
    assert_eq!(rt; demo_params(), PARAMS);
}
