// What the blocks of the samples hold: the number in the first 8 bytes and the sum of each block that isn't empty, and
// of the other samples each block that differs from that of the small one. Another program computed them from the
// format's tables.

use img_make::table;

/// A block, the number in its first 8 bytes, which in an object is the stored sum, and its sum.
pub type Row = (usize, u64, u64);

pub const SMALL: &[Row] = table! {
    0, 0xb0b5_b32b_26d0_f589, 0xb0b5_b32b_26d0_f589; 1, 0x8139_203a_3ec6_8f4e, 0x8139_203a_3ec6_8f4e;
    2, 0xb0b5_b32b_26d0_f589, 0xb0b5_b32b_26d0_f589; 9, 0x8e8e_ada7_f129_7f80, 0x8e8e_ada7_f129_7f80;
    10, 0x004c_e949_7fb3_0311, 0x004c_e949_7fb3_0311; 11, 0xdc17_e37c_9446_082f, 0xdc17_e37c_9446_082f;
    12, 0xdc17_e77a_9446_0430, 0xdc17_e77a_9446_0430; 25, 0x4001_1117_fffe_eea3, 0x4001_1117_fffe_eea3;
    26, 0x1c9d_2c4e_93d0_aeeb, 0x1c9d_2c4e_93d0_aeeb; 27, 0x0000_0000_0000_0003, 0xffff_ffff_ffff_ffff;
    43, 0x8008_83fe_3ff7_79d9, 0x8008_83fe_3ff7_79d9; 44, 0x01ff_ffff_ffff_ffff, 0xffff_ffff_ffff_ffff;
    51, 0x5486_8b5f_e2e6_8b58, 0x5486_8b5f_e2e6_8b58; 52, 0x4001_e3a5_fffe_1be0, 0x4001_e3a5_fffe_1be0;
    53, 0x1c9d_a01e_93d0_3afb, 0x1c9d_a01e_93d0_3afb; 54, 0xd616_4faa_7e76_e040, 0xd616_4faa_7e76_e040;
    55, 0x5c08_bb78_5455_33ec, 0x5c08_bb78_5455_33ec; 56, 0x5c08_c36f_5455_2bf3, 0x5c08_c36f_5455_2bf3;
};

pub const HELLO: &[Row] = table! {
    9, 0x8e8e_a9b9_f129_836f, 0x8e8e_a9b9_f129_836f; 43, 0x8008_800d_3ff7_7dcb, 0x8008_800d_3ff7_7dcb;
    44, 0x03ff_ffff_ffff_ffff, 0xffff_ffff_ffff_ffff; 51, 0x5486_8f33_e2e6_8783, 0x5486_8f33_e2e6_8783;
    54, 0x876e_83ca_58b2_90ac, 0x876e_83ca_58b2_90ac; 55, 0x1baa_0f8c_64b3_df63, 0x1baa_0f8c_64b3_df63;
    57, 0x0000_006f_6c6c_6568, 0xffff_ffff_ffff_ffff;
};

pub const LINKS: &[Row] = table! {
    51, 0x5486_96db_e2e6_7fd9, 0x5486_96db_e2e6_7fd9; 54, 0x4024_9e5d_3434_9132, 0x4024_9e5d_3434_9132;
};

pub const HOLE: &[Row] = table! {
    9, 0x8e8e_a9b9_f129_836f, 0x8e8e_a9b9_f129_836f; 43, 0x8008_800d_3ff7_7dcb, 0x8008_800d_3ff7_7dcb;
    44, 0x03ff_ffff_ffff_ffff, 0xffff_ffff_ffff_ffff; 51, 0x5486_8f33_e2e6_8783, 0x5486_8f33_e2e6_8783;
    54, 0x0a09_7a7e_ee44_c04b, 0x0a09_7a7e_ee44_c04b; 55, 0x1baa_0f8c_64b3_df63, 0x1baa_0f8c_64b3_df63;
    57, 0x4141_4141_4141_4141, 0xc3c3_c3c3_b9b9_b9b9;
};

pub const SHARED: &[Row] = table! {
    9, 0x8e8e_a9b9_f129_836f, 0x8e8e_a9b9_f129_836f; 43, 0x8008_800d_3ff7_7dcb, 0x8008_800d_3ff7_7dcb;
    44, 0x03ff_ffff_ffff_ffff, 0xffff_ffff_ffff_ffff; 51, 0x5486_9307_e2e6_83ae, 0x5486_9307_e2e6_83ae;
    54, 0xa357_ed41_f147_4f8b, 0xa357_ed41_f147_4f8b; 55, 0x1baa_0f97_64b3_df57, 0x1baa_0f97_64b3_df57;
};

pub const SNAPSHOTS: &[Row] = table! {
    0, 0xb0b5_da8f_26d0_ce1b, 0xb0b5_da8f_26d0_ce1b; 1, 0x8139_302a_3ec6_7f5a, 0x8139_302a_3ec6_7f5a;
    2, 0xb0b5_da8f_26d0_ce1b, 0xb0b5_da8f_26d0_ce1b; 9, 0x8e8e_a43f_f129_88e8, 0x8e8e_a43f_f129_88e8;
    10, 0x004c_f939_7fb2_f31d, 0x004c_f939_7fb2_f31d; 11, 0xdc17_f36c_9445_f83b, 0xdc17_f36c_9445_f83b;
    12, 0xdc17_f76a_9445_f43c, 0xdc17_f76a_9445_f43c; 25, 0x4001_2107_fffe_deaf, 0x4001_2107_fffe_deaf;
    26, 0x1c9d_3c3e_93d0_9ef7, 0x1c9d_3c3e_93d0_9ef7; 43, 0x8008_843e_3ff7_7999, 0x8008_843e_3ff7_7999;
    44, 0xffff_ffff_ffff_ffff, 0x0000_03fe_ffff_fc00; 51, 0x5486_96c7_e2e6_7fed, 0x5486_96c7_e2e6_7fed;
    52, 0x4003_07c3_fffc_f778, 0x4003_07c3_fffc_f778; 53, 0xd7df_1a78_d85e_833c, 0xd7df_1a78_d85e_833c;
    54, 0xfa2a_0b2d_e54a_fb4b, 0xfa2a_0b2d_e54a_fb4b; 55, 0x5c08_cb68_5455_23f8, 0x5c08_cb68_5455_23f8;
    56, 0xab74_5d8e_007b_a52b, 0xab74_5d8e_007b_a52b; 57, 0xe422_ecc2_fb25_1eda, 0xe422_ecc2_fb25_1eda;
    58, 0x5659_1d25_ab11_ef33, 0x5659_1d25_ab11_ef33; 59, 0x48e2_b42a_7752_c58f, 0x48e2_b42a_7752_c58f;
    60, 0x5486_aa57_e2e6_6c58, 0x5486_aa57_e2e6_6c58; 61, 0x5c08_d768_5455_17f5, 0x5c08_d768_5455_17f5;
    62, 0x5486_bdd1_e2e6_58d9, 0x5486_bdd1_e2e6_58d9; 63, 0x5c08_e75c_5455_07fd, 0x5c08_e75c_5455_07fd;
    64, 0x5b61_8c30_54fc_630d, 0x5b61_8c30_54fc_630d;
};

pub const EIGHT_SNAPSHOTS: &[Row] = table! {
    0, 0xb0b5_fa1f_26d0_ae83, 0xb0b5_fa1f_26d0_ae83; 1, 0x8139_401a_3ec6_6f66, 0x8139_401a_3ec6_6f66;
    2, 0xb0b5_fa1f_26d0_ae83, 0xb0b5_fa1f_26d0_ae83; 9, 0x8e8e_8b1f_f129_a20c, 0x8e8e_8b1f_f129_a20c;
    10, 0x004d_0929_7fb2_e329, 0x004d_0929_7fb2_e329; 11, 0xdc18_035c_9445_e847, 0xdc18_035c_9445_e847;
    12, 0xdc18_075a_9445_e448, 0xdc18_075a_9445_e448; 25, 0x4001_30f7_fffe_cebb, 0x4001_30f7_fffe_cebb;
    26, 0x1c9d_4c2e_93d0_8f03, 0x1c9d_4c2e_93d0_8f03; 43, 0x8008_74ba_3ff7_8921, 0x8008_74ba_3ff7_8921;
    44, 0xffff_ffff_ffff_ffff, 0x007f_bc02_ff80_23fe; 51, 0x5486_ad83_e2e6_692b, 0x5486_ad83_e2e6_692b;
    52, 0x4003_6e95_fffc_908c, 0x4003_6e95_fffc_908c; 53, 0xd7df_2a68_d85e_7348, 0xd7df_2a68_d85e_7348;
    54, 0xfa2a_0b2d_e54a_fb4b, 0xfa2a_0b2d_e54a_fb4b; 55, 0x5c08_db58_5455_1404, 0x5c08_db58_5455_1404;
    56, 0x9693_2cfd_e60e_e31e, 0x9693_2cfd_e60e_e31e; 57, 0xe422_ecc2_fb25_1eda, 0xe422_ecc2_fb25_1eda;
    58, 0x5659_1d25_ab11_ef33, 0x5659_1d25_ab11_ef33; 59, 0x48e2_b42a_7752_c58f, 0x48e2_b42a_7752_c58f;
    60, 0x5486_a65b_e2e6_7055, 0x5486_a65b_e2e6_7055; 61, 0x5c08_d36c_5455_1bf2, 0x5c08_d36c_5455_1bf2;
    62, 0x5486_b5d9_e2e6_60d3, 0x5486_b5d9_e2e6_60d3; 63, 0x5c08_df64_5455_0ff7, 0x5c08_df64_5455_0ff7;
    64, 0x5486_c557_e2e6_5151, 0x5486_c557_e2e6_5151; 65, 0x5c08_eb5c_5455_03fc, 0x5c08_eb5c_5455_03fc;
    66, 0x5486_d4d5_e2e6_41cf, 0x5486_d4d5_e2e6_41cf; 67, 0x5c08_f754_5454_f801, 0x5c08_f754_5454_f801;
    68, 0x5486_e453_e2e6_324d, 0x5486_e453_e2e6_324d; 69, 0x5c09_034c_5454_ec06, 0x5c09_034c_5454_ec06;
    70, 0x5486_f3d1_e2e6_22cb, 0x5486_f3d1_e2e6_22cb; 71, 0x5c09_0f44_5454_e00b, 0x5c09_0f44_5454_e00b;
    72, 0x5487_034f_e2e6_1349, 0x5487_034f_e2e6_1349; 73, 0x5c09_1b3c_5454_d410, 0x5c09_1b3c_5454_d410;
    74, 0x5487_12cd_e2e6_03c7, 0x5487_12cd_e2e6_03c7; 75, 0x5c09_2734_5454_c815, 0x5c09_2734_5454_c815;
    76, 0x3a6e_65b8_746f_8843, 0x3a6e_65b8_746f_8843;
};

pub const JUMPSTART: &[Row] = table! {
    0, 0xb0b6_505d_26d0_581e, 0xb0b6_505d_26d0_581e; 2, 0xb0b6_505d_26d0_581e, 0xb0b6_505d_26d0_581e;
    9, 0x8e8e_a1dd_f129_8b4d, 0x8e8e_a1dd_f129_8b4d; 43, 0x8008_782b_3ff7_85af, 0x8008_782b_3ff7_85af;
    44, 0x0fff_ffff_ffff_ffff, 0xffff_ffff_ffff_ffff; 57, 0xffab_749e_6e10_178a, 0xffab_749e_6e10_178a;
};

pub const TWO_VOLUMES: &[Row] = table! {
    0, 0xb0c5_213c_26c1_836c, 0xb0c5_213c_26c1_836c; 2, 0xb0c5_213c_26c1_836c, 0xb0c5_213c_26c1_836c;
    9, 0x8e8e_9225_f129_9b09, 0x8e8e_9225_f129_9b09; 26, 0x1c32_9180_943b_3555, 0x1c32_9180_943b_3555;
    43, 0x8008_6867_3ff7_9577, 0x8008_6867_3ff7_9577; 44, 0xffff_ffff_ffff_ffff, 0xffff_ffff_ffff_ffff;
    57, 0x7755_d9bd_54f3_0338, 0x7755_d9bd_54f3_0338; 58, 0x4002_1351_fffd_ec28, 0x4002_1351_fffd_ec28;
    59, 0x1c9d_c42d_93d0_16dd, 0x1c9d_c42d_93d0_16dd; 60, 0x8a02_8fc4_5618_84af, 0x8a02_8fc4_5618_84af;
    61, 0x1baa_3f20_64b3_afc3, 0x1baa_3f20_64b3_afc3; 62, 0x5c08_db63_5455_13f9, 0x5c08_db63_5455_13f9;
    63, 0x0000_006f_6c6c_6568, 0xffff_ffff_ffff_ffff;
};

pub const ADDRESS_BLOCK: &[Row] = table! {
    9, 0x8e86_e264_f131_4cba, 0x8e86_e264_f131_4cba; 27, 0x0000_0000_0000_0007, 0xffff_ffff_ffff_ffff;
    45, 0x8001_7ec5_3ffe_80da, 0x8001_7ec5_3ffe_80da;
};

pub const SMALL_16384: &[Row] = table! {
    0, 0x63cb_8911_73ba_efa3, 0x63cb_8911_73ba_efa3; 1, 0x90ea_773a_2f14_784e, 0x90ea_773a_2f14_784e;
    2, 0x63cb_8911_73ba_efa3, 0x63cb_8911_73ba_efa3; 9, 0x07d9_76ab_77dc_fefd, 0x07d9_76ab_77dc_fefd;
    10, 0x0433_9b49_7bcc_2111, 0x0433_9b49_7bcc_2111; 11, 0x644a_a536_dc13_1675, 0x644a_a536_dc13_1675;
    12, 0x644a_b534_dc13_0676, 0x644a_b534_dc13_0676; 25, 0x4004_4a17_fffb_b5a3, 0x4004_4a17_fffb_b5a3;
    26, 0xe4d4_5f06_9b99_1c32, 0xe4d4_5f06_9b99_1c32; 27, 0x0000_0000_0000_0003, 0xffff_ffff_ffff_ffff;
    43, 0x8022_66fe_3fdd_96d9, 0x8022_66fe_3fdd_96d9; 44, 0x01ff_ffff_ffff_ffff, 0xffff_ffff_ffff_ffff;
    51, 0x3775_e8c6_fff7_2df1, 0x3775_e8c6_fff7_2df1; 52, 0x4007_98a5_fff8_66e0, 0x4007_98a5_fff8_66e0;
    53, 0xe4d6_2ed6_9b97_4c42, 0xe4d6_2ed6_9b97_4c42; 54, 0xcce1_7ab1_57ab_8539, 0xcce1_7ab1_57ab_8539;
    55, 0xe40d_ea31_9c4f_d532, 0xe40d_ea31_9c4f_d532; 56, 0xe40e_0a28_9c4f_b539, 0xe40e_0a28_9c4f_b539;
};

pub const SMALL_65536: &[Row] = table! {
    0, 0x5d22_e0a8_7a62_d80c, 0x5d22_e0a8_7a62_d80c; 1, 0x83af_d33b_3c4c_1c4d, 0x83af_d33b_3c4c_1c4d;
    2, 0x5d22_e0a8_7a62_d80c, 0x5d22_e0a8_7a62_d80c; 9, 0x890c_9aba_f6a2_fced, 0x890c_9aba_f6a2_fced;
    10, 0x40ce_6349_3f30_9911, 0x40ce_6349_3f30_9911; 11, 0x8515_d91c_fb47_228e, 0x8515_d91c_fb47_228e;
    12, 0x8516_191a_fb46_e28f, 0x8516_191a_fb46_e28f; 25, 0x4011_2e17_ffee_d1a3, 0x4011_2e17_ffee_d1a3;
    26, 0x05b1_56ea_baba_a44e, 0x05b1_56ea_baba_a44e; 27, 0x0000_0000_0000_0003, 0xffff_ffff_ffff_ffff;
    43, 0x8089_f2fe_3f76_0ad9, 0x8089_f2fe_3f76_0ad9; 44, 0x01ff_ffff_ffff_ffff, 0xffff_ffff_ffff_ffff;
    51, 0xc333_5e61_7439_b856, 0xc333_5e61_7439_b856; 52, 0x401e_6ca5_ffe1_92e0, 0x401e_6ca5_ffe1_92e0;
    53, 0x05b8_96ba_bab3_645e, 0x05b8_96ba_bab3_645e; 54, 0xa80e_53cd_bc7d_ec1c, 0xa80e_53cd_bc7d_ec1c;
    55, 0x0422_d218_bc3a_2d4b, 0x0422_d218_bc3a_2d4b; 56, 0x0423_520f_bc39_ad52, 0x0423_520f_bc39_ad52;
};
