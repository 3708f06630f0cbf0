// Made from docs/commands.json by docs/make_reference.py: the opcode and the cells of each row as constants, by the
// names of their arguments. A constant costs nothing when it is used; a row that is named is built first.
pub const K1_OP: u64 = crate::kinds::ROW_1[0] as u64;

pub const K1_SF: u32 = crate::kinds::ROW_1[4];

pub const K1_LORA_BW: u32 = crate::kinds::ROW_1[5];

pub const K1_LORA_CR: u32 = crate::kinds::ROW_1[6];

pub const K1_LDRO: u32 = crate::kinds::ROW_1[7];

pub const K1_LORA_FILTER: u32 = crate::kinds::ROW_1[8];

pub const K2_OP: u64 = crate::kinds::ROW_2[0] as u64;

pub const K2_PBL_LEN: u32 = crate::kinds::ROW_2[4];

pub const K2_PAYLOAD_LEN: u32 = crate::kinds::ROW_2[5];

pub const K2_HEADER_TYPE: u32 = crate::kinds::ROW_2[6];

pub const K2_CRC_EN: u32 = crate::kinds::ROW_2[7];

pub const K2_INVERT_IQ: u32 = crate::kinds::ROW_2[8];

pub const K3_OP: u64 = crate::kinds::ROW_3[0] as u64;

pub const K3_SYMBOLS: u32 = crate::kinds::ROW_3[4];

pub const K3_TIMEOUT_FORMAT: u32 = crate::kinds::ROW_3[5];

pub const K4_OP: u64 = crate::kinds::ROW_4[0] as u64;

pub const K4_SYNCWORD: u32 = crate::kinds::ROW_4[4];

pub const K5_OP: u64 = crate::kinds::ROW_5[0] as u64;

pub const K5_PMOD_EN: u32 = crate::kinds::ROW_5[4];

pub const K5_DRAM_RET: u32 = crate::kinds::ROW_5[5];

pub const K5_WAKEUP_TIME: u32 = crate::kinds::ROW_5[6];

pub const K5_MIN_SLEEP_TIME: u32 = crate::kinds::ROW_5[7];

pub const K6_OP: u64 = crate::kinds::ROW_6[0] as u64;

pub const K6_PMOD_EN: u32 = crate::kinds::ROW_6[4];

pub const K6_DRAM_RET: u32 = crate::kinds::ROW_6[5];

pub const K6_WAKEUP_TIME: u32 = crate::kinds::ROW_6[6];

pub const K6_MIN_SLEEP_TIME: u32 = crate::kinds::ROW_6[7];

pub const K6_ERR_THR: u32 = crate::kinds::ROW_6[8];

pub const K6_MIN_SYM: u32 = crate::kinds::ROW_6[9];

pub const K6_DETECT_TIME_SYM: u32 = crate::kinds::ROW_6[10];

pub const K6_START_OFFSET: u32 = crate::kinds::ROW_6[11];

pub const K6_END_OFFSET: u32 = crate::kinds::ROW_6[12];

pub const K7_OP: u64 = crate::kinds::ROW_7[0] as u64;

pub const K7_NB_SYMBOLS: u32 = crate::kinds::ROW_7[4];

pub const K7_PBL_ANY: u32 = crate::kinds::ROW_7[5];

pub const K7_PNR_DELTA: u32 = crate::kinds::ROW_7[6];

pub const K7_EXIT_MODE: u32 = crate::kinds::ROW_7[7];

pub const K7_TIMEOUT: u32 = crate::kinds::ROW_7[8];

pub const K7_DET_PEAK: u32 = crate::kinds::ROW_7[9];

pub const K8_OP: u64 = crate::kinds::ROW_8[0] as u64;

pub const K9_OP: u64 = crate::kinds::ROW_9[0] as u64;

pub const K10_OP: u64 = crate::kinds::ROW_10[0] as u64;

pub const K11_OP: u64 = crate::kinds::ROW_11[0] as u64;

pub const K11_ADDR_LEN: u32 = crate::kinds::ROW_11[4];

pub const K11_ADDR_POS: u32 = crate::kinds::ROW_11[5];

pub const K11_ADDR: u32 = crate::kinds::ROW_11[6];

pub const K12_OP: u64 = crate::kinds::ROW_12[0] as u64;

pub const K12_SYNC1: u32 = crate::kinds::ROW_12[4];

pub const K12_SYNC2: u32 = crate::kinds::ROW_12[5];

pub const K13_OP: u64 = crate::kinds::ROW_13[0] as u64;

pub const K13_SD1_SW1: u32 = crate::kinds::ROW_13[4];

pub const K13_SD1_SW2: u32 = crate::kinds::ROW_13[5];

pub const K13_SD2_SW1: u32 = crate::kinds::ROW_13[6];

pub const K13_SD2_SW2: u32 = crate::kinds::ROW_13[7];

pub const K13_SD3_SW1: u32 = crate::kinds::ROW_13[8];

pub const K13_SD3_SW2: u32 = crate::kinds::ROW_13[9];

pub const K14_OP: u64 = crate::kinds::ROW_14[0] as u64;

pub const K14_TIMING_SYNC_MODE: u32 = crate::kinds::ROW_14[4];

pub const K14_DIO_NUM: u32 = crate::kinds::ROW_14[5];

pub const K15_OP: u64 = crate::kinds::ROW_15[0] as u64;

pub const K15_THR_GAIN: u32 = crate::kinds::ROW_15[4];

pub const K15_THR: u32 = crate::kinds::ROW_15[5];

pub const K15_LVL_GAIN: u32 = crate::kinds::ROW_15[6];

pub const K15_DETECT: u32 = crate::kinds::ROW_15[7];

pub const K15_RSSI_THR: u32 = crate::kinds::ROW_15[8];

pub const K16_OP: u64 = crate::kinds::ROW_16[0] as u64;

pub const K16_BITRATE: u32 = crate::kinds::ROW_16[4];

pub const K16_PULSE_SHAPE: u32 = crate::kinds::ROW_16[5];

pub const K16_RX_BW: u32 = crate::kinds::ROW_16[6];

pub const K16_FDEV: u32 = crate::kinds::ROW_16[7];

pub const K17_OP: u64 = crate::kinds::ROW_17[0] as u64;

pub const K17_PBL_LEN_TX: u32 = crate::kinds::ROW_17[4];

pub const K17_PBL_LEN_DETECT: u32 = crate::kinds::ROW_17[5];

pub const K17_PBL_LONG: u32 = crate::kinds::ROW_17[6];

pub const K17_PLD_LEN_UNIT: u32 = crate::kinds::ROW_17[7];

pub const K17_ADDR_COMP: u32 = crate::kinds::ROW_17[8];

pub const K17_FSK_PKT_FORMAT: u32 = crate::kinds::ROW_17[9];

pub const K17_PLD_LEN: u32 = crate::kinds::ROW_17[10];

pub const K17_CRC: u32 = crate::kinds::ROW_17[11];

pub const K17_DC_FREE: u32 = crate::kinds::ROW_17[12];

pub const K18_OP: u64 = crate::kinds::ROW_18[0] as u64;

pub const K18_WHITEN_TYPE: u32 = crate::kinds::ROW_18[4];

pub const K18_INIT: u32 = crate::kinds::ROW_18[5];

pub const K19_OP: u64 = crate::kinds::ROW_19[0] as u64;

pub const K19_POLYNOM: u32 = crate::kinds::ROW_19[4];

pub const K19_INIT: u32 = crate::kinds::ROW_19[5];

pub const K20_OP: u64 = crate::kinds::ROW_20[0] as u64;

pub const K20_SYNCWORD: u32 = crate::kinds::ROW_20[4];

pub const K20_BIT_ORDER: u32 = crate::kinds::ROW_20[5];

pub const K20_NB_BITS: u32 = crate::kinds::ROW_20[6];

pub const K21_OP: u64 = crate::kinds::ROW_21[0] as u64;

pub const K21_ADDR_NODE: u32 = crate::kinds::ROW_21[4];

pub const K21_ADDR_BCAST: u32 = crate::kinds::ROW_21[5];

pub const K22_OP: u64 = crate::kinds::ROW_22[0] as u64;

pub const K23_OP: u64 = crate::kinds::ROW_23[0] as u64;

pub const K24_OP: u64 = crate::kinds::ROW_24[0] as u64;

pub const K24_RF_FREQ: u32 = crate::kinds::ROW_24[4];

pub const K25_OP: u64 = crate::kinds::ROW_25[0] as u64;

pub const K25_RX_PATH: u32 = crate::kinds::ROW_25[4];

pub const K26_OP: u64 = crate::kinds::ROW_26[0] as u64;

pub const K26_RX_PATH: u32 = crate::kinds::ROW_26[4];

pub const K26_RX_BOOST: u32 = crate::kinds::ROW_26[5];

pub const K27_OP: u64 = crate::kinds::ROW_27[0] as u64;

pub const K27_PA_SEL: u32 = crate::kinds::ROW_27[4];

pub const K27_PA_LF_MODE: u32 = crate::kinds::ROW_27[5];

pub const K27_PA_LF_DUTY_CYCLE: u32 = crate::kinds::ROW_27[6];

pub const K27_PA_LF_SLICES: u32 = crate::kinds::ROW_27[7];

pub const K28_OP: u64 = crate::kinds::ROW_28[0] as u64;

pub const K28_PA_SEL: u32 = crate::kinds::ROW_28[4];

pub const K28_PA_LF_MODE: u32 = crate::kinds::ROW_28[5];

pub const K28_PA_LF_DUTY_CYCLE: u32 = crate::kinds::ROW_28[6];

pub const K28_PA_LF_SLICES: u32 = crate::kinds::ROW_28[7];

pub const K28_PA_HF_DUTY_CYCLE: u32 = crate::kinds::ROW_28[8];

pub const K29_OP: u64 = crate::kinds::ROW_29[0] as u64;

pub const K29_RX_TIMEOUT: u32 = crate::kinds::ROW_29[4];

pub const K30_OP: u64 = crate::kinds::ROW_30[0] as u64;

pub const K30_TX_TIMEOUT: u32 = crate::kinds::ROW_30[4];

pub const K31_OP: u64 = crate::kinds::ROW_31[0] as u64;

pub const K31_PA_SEL: u32 = crate::kinds::ROW_31[4];

pub const K32_OP: u64 = crate::kinds::ROW_32[0] as u64;

pub const K32_RX_MAX_TIME: u32 = crate::kinds::ROW_32[4];

pub const K32_CYCLE_TIME: u32 = crate::kinds::ROW_32[5];

pub const K32_USE_LORA_CAD: u32 = crate::kinds::ROW_32[6];

pub const K32_DRAM_RET: u32 = crate::kinds::ROW_32[7];

pub const K33_OP: u64 = crate::kinds::ROW_33[0] as u64;

pub const K33_CLEAR: u32 = crate::kinds::ROW_33[4];

pub const K33_AUTO_TXRX_MODE: u32 = crate::kinds::ROW_33[5];

pub const K33_TIMEOUT: u32 = crate::kinds::ROW_33[6];

pub const K33_DELAY: u32 = crate::kinds::ROW_33[7];

pub const K34_OP: u64 = crate::kinds::ROW_34[0] as u64;

pub const K34_RX_TIMEOUT: u32 = crate::kinds::ROW_34[4];

pub const K34_TX_TIMEOUT: u32 = crate::kinds::ROW_34[5];

pub const K35_OP: u64 = crate::kinds::ROW_35[0] as u64;

pub const K35_TIMESTAMP_INDEX: u32 = crate::kinds::ROW_35[4];

pub const K35_TIMESTAMP_SOURCE: u32 = crate::kinds::ROW_35[5];

pub const K36_OP: u64 = crate::kinds::ROW_36[0] as u64;

pub const K36_DURATION: u32 = crate::kinds::ROW_36[4];

pub const K37_OP: u64 = crate::kinds::ROW_37[0] as u64;

pub const K37_DURATION: u32 = crate::kinds::ROW_37[4];

pub const K37_GAIN: u32 = crate::kinds::ROW_37[5];

pub const K38_OP: u64 = crate::kinds::ROW_38[0] as u64;

pub const K38_GAIN_STEP: u32 = crate::kinds::ROW_38[4];

pub const K39_OP: u64 = crate::kinds::ROW_39[0] as u64;

pub const K39_CAD_TIMEOUT: u32 = crate::kinds::ROW_39[4];

pub const K39_THRESHOLD: u32 = crate::kinds::ROW_39[5];

pub const K39_EXIT_MODE: u32 = crate::kinds::ROW_39[6];

pub const K39_TRX_TIMEOUT: u32 = crate::kinds::ROW_39[7];
