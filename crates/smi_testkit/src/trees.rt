//! Tree files.

/// The worked tree: stations A 1 and B 2, operators ANN 1 at A and BOB 2 at B, domain DCS 1 at A, TPC 2 at B under it,
/// and the device HV in TPC, which is object 3. Actions are 1 CONFIGURE, 2 START, 3 STOP; states are 1 OFF, 2 READY,
/// 3 RUNNING, 4 ERROR.
pub const WORKED: &[u8] =
    b"tree 17\nstate OFF\nstate READY\nstate RUNNING\nstate ERROR\naction CONFIGURE\naction START\naction STOP\nstation A 127.0.0.1:9001\nstation B 127.0.0.1:9002\noperator ANN A\noperator BOB B\ndevclass DEV OFF\nmove DEV OFF CONFIGURE READY\nmove DEV READY START RUNNING\nunitclass UNIT OFF\naccept UNIT CONFIGURE\naccept UNIT START\nany UNIT ERROR ERROR\nall UNIT RUNNING RUNNING\nall UNIT READY READY\nall UNIT OFF OFF\ndomain DCS A UNIT -\ndomain TPC B UNIT DCS\ndevice HV TPC DEV\n";

/// Two stations alone: A 1 and B 2, operators ANN 1 at A and BOB 2 at B, domains DCS 1 at A and TPC 2 at B under it.
pub const PAIR: &[u8] =
    b"tree 17\nstate OFF\naction CONFIGURE\naction START\nstation A 127.0.0.1:9001\nstation B 127.0.0.1:9002\noperator ANN A\noperator BOB B\nunitclass UNIT OFF\ndomain DCS A UNIT -\ndomain TPC B UNIT DCS\n";
